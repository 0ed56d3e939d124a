// The rows of the table. A setting is one of these:
//
//     script=NAME     the script is NAME.script, and not that of the row's own name
//     hashes=COUNT    the script is so many `#`, which are one line
//     read=NUMBER     the read of this number fails, the first being 1
//     write=NUMBER    the write of this number fails
//     pair=KEY:VALUE  the workers' enrichers add this pair to each request
//     audit=CALLS     what the workers' sinks hold is told too; CALLS are the calls of each worker's first sink that fail, as `2,3`, or `none`
use anyhow::{Context, Result, bail};
use rg_base::{Pair, Text};
use std::alloc::{AllocError, Global};

/// Where the script of a row comes from.
#[derive(Drop)]
pub(crate) enum Script {
    /// The file of this name.
    Stored(String),
    /// So many `#`.
    Hashes(usize),
}

/// A run, and what it is to end with.
#[derive(Drop)]
pub(crate) struct Row {
    pub name: String,
    pub status: u8,
    pub script: Script,
    /// The read that fails; 0 for none.
    pub failing_read: u64,
    /// The write that fails; 0 for none.
    pub failing_write: u64,
    /// The key and the value that enrichers add.
    pair: Option<(String, String)>,
    /// Whether it is told what the sinks hold.
    pub tells_audit: bool,
    /// The calls of each worker's first sink that fail.
    pub failing_audits: Vec<u64>,
    pub words: Vec<String>,
}

/// The key and the value on both sides of the colon.
fn pair_in(alloc: Global, text: &str) -> Result<(String, String)> {
    let (key, value) = text.split_once(':').context("the pair has no colon")?;
    Ok((
        String::from_str(alloc, key)?,
        String::from_str(alloc, value)?,
    ))
}

/// The numbers between the commas; none where the text is `none`.
fn calls_in(alloc: Global, text: &str) -> Result<Vec<u64>> {
    let mut calls = Vec::new(alloc);
    if text != "none" {
        for number in text.split(',') {
            calls.push(number.parse::<u64>()?)?;
        }
    }
    Ok(calls)
}

impl Row {
    /// A run over the script of its own name, in which no call fails, without words.
    fn new(alloc: Global, name: &str, status: u8) -> Result<Row, AllocError> {
        Ok(Row {
            name: String::from_str(alloc, name)?,
            status,
            script: Script::Stored(String::from_str(alloc, name)?),
            failing_read: 0,
            failing_write: 0,
            pair: None,
            tells_audit: false,
            failing_audits: Vec::new(alloc),
            words: Vec::new(alloc),
        })
    }

    /// Takes a word of the row, which is a setting or a word of the command line.
    fn take(&mut self, alloc: Global, word: &str) -> Result<()> {
        match word.split_once('=') {
            Some(("script", name)) => self.script = Script::Stored(String::from_str(alloc, name)?),
            Some(("hashes", count)) => self.script = Script::Hashes(count.parse()?),
            Some(("read", number)) => self.failing_read = number.parse()?,
            Some(("write", number)) => self.failing_write = number.parse()?,
            Some(("pair", pair)) => self.pair = Some(pair_in(alloc, pair)?),
            Some(("audit", calls)) => {
                self.tells_audit = true;
                self.failing_audits = calls_in(alloc, calls)?;
            }
            Some((key, _)) => bail!("{key} is no setting"),
            None => self.words.push(String::from_str(alloc, word)?)?,
        }
        Ok(())
    }

    /// The pair that enrichers add, if there is one.
    pub fn pair(&self, alloc: Global) -> Result<Option<Pair>, AllocError> {
        match &self.pair {
            Some((key, value)) => Ok(Some(Pair {
                key: Text::of(String::from_str(alloc, key.as_str())?),
                value: Text::of(String::from_str(alloc, value.as_str())?),
            })),
            None => Ok(None),
        }
    }

    /// The row that the line is.
    pub fn read(alloc: Global, line: &str) -> Result<Row> {
        let mut fields = line.split(' ');
        let name = fields.next().context("the name is missing")?;
        let status = fields.next().context("the status is missing")?;
        let mut row = Row::new(alloc, name, status.parse()?)?;
        for word in fields {
            row.take(alloc, word)?;
        }
        Ok(row)
    }
}
