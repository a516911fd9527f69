// The law of decimals: each is read back as its number, and nothing else is read as one.
ghost use Rattle.value_decimal.specs.Laws.{ReadsDecimals, ReadsOnlyDecimals};

/// A law: the decimal of each number is read back as that number, and nothing else is read as one. The call does
/// nothing.
pub fn law_decimals()
    ensures read { ReadsDecimals }
    ensures only { ReadsOnlyDecimals }
{}
