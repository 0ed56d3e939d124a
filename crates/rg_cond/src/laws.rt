// Laws of clocks and spans, each the contract of a function that does nothing.
ghost use Rattle.std.specs.Prelude.{◌≡◌, ◌-ℤ◌, ℕ, List, Option, Some, true};
ghost use Rattle.jiff.specs.Placed.{IsPosixZone};
ghost use Rattle.jiff.specs.Words.{ambiguous_at, civil_seconds, compatible_offset, read_whole};
ghost use Rattle.jiff_core.specs.declared.civil.datetime.DateTime.{DateTime};
ghost use Rattle.jiff_tz.specs.PosixText.{TzText};
ghost use Rattle.jiff_tz.specs.declared.timezone.TimeZone.{TimeZone};
ghost use Rattle.rg_cond.specs.Clocks.{held, instant_on};
ghost use Rattle.rg_cond.specs.Dates.{shown_of};

/// Where a rule's clock shows a time, the instant is the one that `jiff` takes: by the offset before a gap, and
/// the earlier in a fold.
pub fn clock_agrees_with_jiff()
    ensures { (rule : List ℕ) (zone : TimeZone) (dt : DateTime)
        → IsPosixZone rule zone → dt.time.subsec_nanosecond ≡ 0
        → (said : TzText) × (read_whole rule ≡ Some said)
        × (instant_on (Some said) (shown_of dt) ≡ held (civil_seconds dt -ℤ (compatible_offset (ambiguous_at zone dt)).seconds)) }
{}
