// What is printed of a drill.
ghost use Rattle.std.specs.Prelude.{◌≡◌, ◌++◌, OnOk, string_bytes};
ghost use Rattle.rg_run_drill.specs.Report.{policies_line, report_text, requests_line};

use crate::totals::Totals;
use rg_base::NoMemory;

#[tactic(auto, unfolding(crate::specs::Report::policies_line))]
fn add_policies_line(text: &mut String, t: &Totals) -> Result<(), NoMemory>
    ensures { OnOk result (string_bytes text.new ≡ string_bytes text.old ++ policies_line t.now) }
{
    let Totals {
        policies,
        publications,
        compiles,
        edits,
        ..
    } = *t;
    match writeln!(
        text,
        "policies={policies} publications={publications} compiles={compiles} edits={edits}"
    ) {
        Ok(()) => Ok(()),
        Err(_) => Err(NoMemory),
    }
}

#[tactic(auto, unfolding(crate::specs::Report::requests_line))]
fn add_requests_line(text: &mut String, t: &Totals) -> Result<(), NoMemory>
    ensures { OnOk result (string_bytes text.new ≡ string_bytes text.old ++ requests_line t.now) }
{
    let Totals {
        requests,
        allowed,
        denied,
        undetermined,
        tries,
        ..
    } = *t;
    match writeln!(
        text,
        "requests={requests} allowed={allowed} denied={denied} undetermined={undetermined} tries={tries}"
    ) {
        Ok(()) => Ok(()),
        Err(_) => Err(NoMemory),
    }
}

/// Adds the two lines of the numbers.
pub fn add_report(text: &mut String, totals: &Totals) -> Result<(), NoMemory>
    ensures { OnOk result (string_bytes text.new
        ≡ string_bytes text.old ++ report_text totals.now) }
{
    add_policies_line(text, totals)?;
    add_requests_line(text, totals)
}
