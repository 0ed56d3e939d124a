// Lines of a script of a kept administration.
use rg_ask_wire::print_ask;
use rg_base::Moment;
use rg_run_keep::{KeepLine, read_keep_line};
use rg_script::LineFault;
use std::alloc::{AllocError, Global};

/// The lines.
pub(crate) const LINES: &str = r#"
# kept
reopen
reopen 
refresh
facts {}
decide {"user":"ann","resource":{"elements":{}},"accessType":"select"}
config {"plugin":"s"}
config {}
admin root
admin root {"command":"getPolicy"}
admin  root {"command":"getPolicy","id":1}
admin root {"command":"getPolicy","id":1}
admin root {"user":{"name":"eve"},"command":"putUser"}
admin root  {"command":"deleteTags","id":-7,"name":"x"}"#;

/// What the line asks: the record of an ask, or else a word.
pub(crate) fn line_row(alloc: Global, line: &str) -> Result<String, AllocError> {
    let word = match read_keep_line(alloc, line.as_bytes(), Moment(0)) {
        Ok(KeepLine::Blank) => "blank",
        Ok(KeepLine::Config(_)) => "config",
        Ok(KeepLine::Reopen) => "reopen",
        Ok(KeepLine::Decide(_)) => "decide",
        Ok(KeepLine::Ask(ask)) => {
            return match print_ask(alloc, &ask) {
                Ok(record) => String::from_str(alloc, record.as_str()),
                Err(_) => String::from_str(alloc, "no memory"),
            };
        }
        Err(LineFault::Bad) => "bad",
        Err(LineFault::NoMemory) => "no memory",
    };
    String::from_str(alloc, word)
}
