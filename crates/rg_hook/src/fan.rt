// Several sinks that are given the same lines.
ghost use Rattle.std.specs.Prelude.{◌≡◌, ◌≤◌, ◌==◌, All, count_by, length, vec_len};
ghost use Rattle.std.specs.List.{AllZip, zip};
ghost use Rattle.std.specs.Str.{chars};
ghost use Rattle.rg_hook.specs.Sinks.{AfterLine, drop_at};

use crate::sink::AuditSink;

/// How many sinks a fan has at most.
const MOST_SINKS: usize = 16;

/// The number of failures at which a sink is dropped.
const DROP_AT: u32 = 3;

/// Gives the line to the sink, unless it is dropped.
fn write_one(sink: &mut Box<dyn AuditSink + Send>, failures: &mut u32, line: &str)
    requires { failures.old ≤ drop_at }
    ensures after { AfterLine (λ s. heard s)
        (λ s. sink_faults s) (chars line.now) (sink.old, failures.old) (sink.new, failures.new) }
    ensures within { failures.new ≤ drop_at }
{
    if *failures < DROP_AT {
        if sink.write(line).is_err() {
            *failures += 1;
        }
    }
}

// Gives the line to each of the sinks that isn't dropped.
fn write_each(sinks: &mut [Box<dyn AuditSink + Send>], failures: &mut [u32], line: &str)
    requires room { length sinks.old ≤ length failures.old }
    requires within { All (λ n. n ≤ drop_at) failures.old }
    ensures after { AllZip (AfterLine (λ s. heard s) (λ s. sink_faults s) (chars line.now))
        (zip sinks.old failures.old) (zip sinks.new failures.new) }
    ensures within { All (λ n. n ≤ drop_at) failures.new }
{
    for (place, sink) in sinks.iter_mut().enumerate() {
        write_one(sink, &mut failures[place], line);
    }
}

// How many of these numbers are those of dropped sinks.
fn count_dropped(failures: &[u32]) -> u32
    requires { length failures.now ≤ 16 }
    ensures { result ≡ count_by (λ n. n == drop_at) failures.now }
{
    failures.iter().filter(|n| **n == DROP_AT).count() as u32
}

/// Up to 16 sinks that are given the same lines. One that failed three times is dropped: it stays, and is given no more lines.
#[derive(Drop)]
pub struct AuditFan {
    sinks: Vec<Box<dyn AuditSink + Send>>,
    // How often each of the sinks failed, in their order. What stands behind these numbers plays no part.
    failures: [u32; MOST_SINKS],
    ghost few: { vec_len sinks ≤ 16 },
    ghost within: { All (λ n. n ≤ 3) failures },
}

impl AuditFan {
    ghost use Rattle.std.specs.Prelude.{◌≡◌, ◌≤◌, ◌==◌, count_by, map, vec_len};
    ghost use Rattle.std.specs.List.{AllZip};
    ghost use Rattle.std.specs.Str.{chars};
    ghost use Rattle.rg_hook.specs.Shown.{sinks_of};
    ghost use Rattle.rg_hook.specs.Sinks.{AfterLine, drop_at};

    /// These sinks, at most 16, none of which has failed. It takes no memory.
    pub fn new(sinks: Vec<Box<dyn AuditSink + Send>>) -> AuditFan
        requires { vec_len sinks ≤ 16 }
        ensures { sinks_of result ≡ map (λ s. (s, 0)) sinks.items }
    {
        AuditFan {
            sinks,
            failures: [0; MOST_SINKS],
        }
    }

    /// Gives the line, which has no line end, to each sink that isn't dropped. A sink that fails takes nothing from the others.
    pub fn write(&mut self, line: &str)
        ensures { AllZip (AfterLine (λ s. heard s) (λ s. sink_faults s) (chars line.now))
            (sinks_of self.old) (sinks_of self.new) }
    {
        write_each(self.sinks.as_mut_slice(), &mut self.failures, line);
    }

    /// How many sinks are dropped.
    #[tactic(auto, using(crate::proofs::Zips::count_beside))]
    pub fn dropped(&self) -> u32
        ensures { result ≡ count_by (λ s. s.1 == drop_at) (sinks_of self.now) }
    {
        count_dropped(&self.failures[..self.sinks.len()])
    }
}
