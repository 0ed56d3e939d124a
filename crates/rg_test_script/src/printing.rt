// What is printed of tests.
ghost use Rattle.std.specs.Prelude.{◌≡◌, ◌++◌, IfOk, OnOk, codes, string_bytes};
ghost use Rattle.rg_test_script.specs.Printing.{bad_case, case_open, escaped, escaped_char, failed_text, is_no_xml, passed_text, summary, top};

use crate::form::Form;
use rg_base::NoMemory;
use rg_run_script::Status;
use std::alloc::Global;

// ---- XML

/// Whether XML can't have the character (XML 1.0, section 2.2).
fn is_no_xml(c: char) -> bool
    ensures { result ≡ is_no_xml c }
{
    match c {
        '\t' | '\n' | '\r' => false,
        '\u{fffe}' | '\u{ffff}' => true,
        c => c < ' ',
    }
}

/// Adds a character as XML has it in a text.
#[tactic(auto, unfolding(crate::specs::Printing::escaped_char))]
fn push_escaped(text: &mut String, c: char) -> Result<(), NoMemory>
    ensures { OnOk result (string_bytes text.new ≡ string_bytes text.old ++ escaped_char c) }
{
    match c {
        '&' => text.push_str("&amp;")?,
        '<' => text.push_str("&lt;")?,
        '>' => text.push_str("&gt;")?,
        '"' => text.push_str("&quot;")?,
        c if is_no_xml(c) => text.push('?')?,
        c => text.push(c)?,
    }
    Ok(())
}

#[tactic(auto, unfolding(crate::specs::Printing::escaped))]
fn escaped(alloc: Global, text: &str) -> Result<String, NoMemory>
    ensures { IfOk result (λ s. string_bytes s ≡ escaped text.now) }
{
    let mut out = String::new(alloc);
    for c in text.chars() {
        push_escaped(&mut out, c)?;
    }
    Ok(out)
}

#[tactic(auto, unfolding(crate::specs::Printing::case_open))]
fn case_open(alloc: Global, number: u64, wanted: &str) -> Result<String, NoMemory>
    ensures { IfOk result (λ s. string_bytes s ≡ case_open number wanted.now) }
{
    let wanted = escaped(alloc, wanted)?;
    let wanted = wanted.as_str();
    Ok(format!(in alloc; "<testcase name=\"line {number}: {wanted}\"")?)
}

// ---- an expectation

/// What is printed of an expectation that is met, in the line of this number.
#[tactic(auto, unfolding(crate::specs::Printing::passed_text))]
pub(crate) fn passed_text(
    alloc: Global,
    form: Form,
    number: u64,
    wanted: &str,
) -> Result<String, NoMemory>
    ensures { IfOk result (λ s. string_bytes s ≡ passed_text form number wanted.now) }
{
    match form {
        Form::Words => Ok(String::new(alloc)),
        Form::Junit => {
            let open = case_open(alloc, number, wanted)?;
            let open = open.as_str();
            Ok(format!(in alloc; "{open}/>\n")?)
        }
    }
}

fn failure_element(alloc: Global, line: &str, reason: &str) -> Result<String, NoMemory>
    ensures { let rest = codes "\">" ++ (escaped reason.now ++ codes "</failure></testcase>\n") in
        IfOk result (λ s. string_bytes s ≡ codes "><failure message=\"" ++ (escaped line.now ++ rest)) }
{
    let line = escaped(alloc, line)?;
    let reason = escaped(alloc, reason)?;
    let line = line.as_str();
    let reason = reason.as_str();
    Ok(format!(in alloc; "><failure message=\"{line}\">{reason}</failure></testcase>\n")?)
}

#[tactic(auto, unfolding(crate::specs::Printing::failed_text))]
fn failed_case(
    alloc: Global,
    number: u64,
    wanted: &str,
    line: &str,
    reason: &str,
) -> Result<String, NoMemory>
    ensures { IfOk result
        (λ s. string_bytes s ≡ failed_text Form.Junit number wanted.now line.now reason.now) }
{
    let open = case_open(alloc, number, wanted)?;
    let failure = failure_element(alloc, line, reason)?;
    let open = open.as_str();
    let failure = failure.as_str();
    Ok(format!(in alloc; "{open}{failure}")?)
}

/// What is printed of one that isn't: the line that came instead, and why.
#[tactic(auto, unfolding(crate::specs::Printing::failed_text))]
pub(crate) fn failed_text(
    alloc: Global,
    form: Form,
    number: u64,
    wanted: &str,
    line: &str,
    reason: &str,
) -> Result<String, NoMemory>
    ensures { IfOk result
        (λ s. string_bytes s ≡ failed_text form number wanted.now line.now reason.now) }
{
    match form {
        Form::Words => {
            Ok(format!(in alloc; "line {number}: expected {wanted}, got {line}{reason}")?)
        }
        Form::Junit => failed_case(alloc, number, wanted, line, reason),
    }
}

// ---- the whole

/// What stands above all.
#[tactic(auto, unfolding(crate::specs::Printing::top))]
pub(crate) fn top(form: Form) -> &'static str
    ensures { result.now ≡ top form }
{
    match form {
        Form::Words => "",
        Form::Junit =>
            "<?xml version=\"1.0\" encoding=\"UTF-8\"?>\n<testsuite name=\"rangerd-test\">\n",
    }
}

/// A case for the bad line at which the tests end, since build servers show nothing but cases.
#[tactic(auto, unfolding(crate::specs::Printing::bad_case))]
fn bad_case(status: Status) -> &'static str
    ensures { result.now ≡ bad_case status }
{
    match status {
        Status::BadLine =>
            "<testcase name=\"bad line\"><error message=\"the tests end at a bad line\"/></testcase>\n",
        _ => "",
    }
}

/// What stands below, where the lines end with this status.
#[tactic(auto, unfolding(crate::specs::Printing::summary))]
pub(crate) fn summary(
    alloc: Global,
    form: Form,
    status: Status,
    passed: u64,
    failed: u64,
) -> Result<String, NoMemory>
    ensures { IfOk result (λ s. string_bytes s ≡ summary form status passed failed) }
{
    match form {
        Form::Words => Ok(format!(in alloc; "{passed} passed, {failed} failed\n")?),
        Form::Junit => {
            let bad = bad_case(status);
            Ok(format!(in alloc; "{bad}</testsuite>\n")?)
        }
    }
}
