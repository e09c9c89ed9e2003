//! Laws over the readings, in terms of what was written. The functions do nothing: their contracts are the laws.
ghost use Rattle.readings.specs.Laws.{FloatsReadAsWholeParts, TimesReadBack};

pub fn floats_read_as_whole_parts()
    ensures { FloatsReadAsWholeParts }
{}

pub fn times_read_back()
    ensures { TimesReadBack }
{}
