//! Laws. Each is the contract of a function that does nothing.
ghost use Rattle.std.specs.Prelude.{◌≡◌, ℤ, List, false};
ghost use Rattle.std.specs.Ordering.{int_cmp};
ghost use Rattle.kz_types.specs.declared.log.Entry.{Entry};
ghost use Rattle.kz_types.specs.Ordered.{Rises};
ghost use Rattle.kz_spec_data.specs.Settlement.{counting_records};
ghost use Rattle.kz_settle.specs.Settling.{offset_of, records_of_pass};

/// Where offsets rise, one pass hands out exactly the records that count.
pub fn one_pass()
    ensures { (es : List Entry) (at : ℤ) → Rises int_cmp offset_of es → counting_records es at ≡ records_of_pass at false es }
{}
