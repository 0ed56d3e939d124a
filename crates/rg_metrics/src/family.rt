// Metrics in the text form of Prometheus (exposition format 0.0.4).
ghost use Rattle.std.specs.Prelude.{◌≡◌, ◌++◌, IfOk, OnOk, option_map, string_bytes};
ghost use Rattle.rg_metrics.specs.Exposition.{families_text, family_text, kind_word, label_text, sample_text, type_text};

use rg_base::NoMemory;
use std::alloc::Global;

/// What a metric is.
#[derive(Clone, Copy, Debug, PartialEq, Eq)]
pub enum Kind {
    /// A count that only rises.
    Counter,
    /// A number that may fall.
    Gauge,
}

impl Kind {
    #[tactic(auto, unfolding(crate::specs::Exposition::kind_word))]
    fn word(self) -> &'static str
        ensures { result.now ≡ kind_word self }
    {
        match self {
            Kind::Counter => "counter",
            Kind::Gauge => "gauge",
        }
    }
}

/// A value of a metric.
#[derive(Drop)]
pub struct Sample {
    /// Of which value of the metric's label it is; None where the metric has no label.
    pub label: Option<&'static str>,
    pub value: u64,
}

/// A metric with its values.
#[derive(Drop)]
pub struct Family {
    pub name: &'static str,
    pub kind: Kind,
    /// The name of its label, which stands where a value has one.
    pub label: &'static str,
    pub samples: Vec<Sample>,
}

impl Family {
    /// A metric with one value.
    pub fn of(
        alloc: Global,
        kind: Kind,
        name: &'static str,
        value: u64,
    ) -> Result<Family, NoMemory> {
        let mut samples = Vec::new(alloc);
        if samples.push(Sample { label: None, value }).is_err() {
            return Err(NoMemory);
        }
        Ok(Family {
            name,
            kind,
            label: "",
            samples,
        })
    }

    /// A count for each value of a label.
    pub fn by(name: &'static str, label: &'static str, samples: Vec<Sample>) -> Family {
        Family {
            name,
            kind: Kind::Counter,
            label,
            samples,
        }
    }
}

fn add_label(text: &mut String, label: &str, word: Option<&'static str>) -> Result<(), NoMemory>
    ensures { OnOk result (string_bytes text.new
        ≡ string_bytes text.old ++ label_text label.now (option_map (λ w. w.now) word.entry)) }
{
    let Some(word) = word else {
        return Ok(());
    };
    match write!(text, "{{{label}=\"{word}\"}}") {
        Ok(()) => Ok(()),
        Err(_) => Err(NoMemory),
    }
}

fn add_sample(text: &mut String, family: &Family, sample: &Sample) -> Result<(), NoMemory>
    ensures { OnOk result (string_bytes text.new
        ≡ string_bytes text.old ++ sample_text family.now sample.now) }
{
    text.push_str(family.name)?;
    add_label(text, family.label, sample.label)?;
    let value = sample.value;
    match writeln!(text, " {value}") {
        Ok(()) => Ok(()),
        Err(_) => Err(NoMemory),
    }
}

fn add_type(text: &mut String, family: &Family) -> Result<(), NoMemory>
    ensures { OnOk result (string_bytes text.new ≡ string_bytes text.old ++ type_text family.now) }
{
    let name = family.name;
    let kind = family.kind.word();
    match writeln!(text, "# TYPE {name} {kind}") {
        Ok(()) => Ok(()),
        Err(_) => Err(NoMemory),
    }
}

fn add_family(text: &mut String, family: &Family) -> Result<(), NoMemory>
    ensures { OnOk result (string_bytes text.new
        ≡ string_bytes text.old ++ family_text family.now) }
{
    add_type(text, family)?;
    for sample in &family.samples {
        add_sample(text, family, sample)?;
    }
    Ok(())
}

/// The metrics, one after another.
pub fn print_families(alloc: Global, families: &[Family]) -> Result<String, NoMemory>
    ensures { IfOk result (λ text. string_bytes text ≡ families_text families.now) }
{
    let mut text = String::new(alloc);
    for family in families {
        add_family(&mut text, family)?;
    }
    Ok(text)
}
