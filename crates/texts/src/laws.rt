// Laws of the definitions. Each is the contract of a function that does nothing, so that it can't be dropped or weakened unseen.
ghost use Rattle.texts.specs.Calendar.{DaysAndDates};
ghost use Rattle.texts.specs.Spelling.{NumbersSpell};

/// The calendar that is run day by day and the one that counts days in years and months are the same: each day has one valid date, and each
/// valid date one day.
pub fn days_and_dates()
    ensures { DaysAndDates }
{}

/// The texts of whole numbers and of decimals read back as the numbers, and have no leading zeros.
pub fn numbers_spell()
    ensures { NumbersSpell }
{}
