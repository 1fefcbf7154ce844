// Laws of the definitions. Each is the contract of a function that does nothing, so that it can't be dropped or weakened unseen.
ghost use Rattle.segment.specs.OneReading.{OneReading, Ambiguous, JoinedReadsBack};
ghost use Rattle.segment.specs.Elements.{AfterEachElement};
ghost use Rattle.segment.specs.Examples.{SegmentsWritten, DocumentsRead};

/// Where the element separator is not the terminator a document has at most one reading.
pub fn one_reading()
    ensures { OneReading }
{}

/// Where they are one byte some document has two.
pub fn two_readings()
    ensures { Ambiguous }
{}

/// Segments joined of parts read back as these parts, each at its place.
pub fn joined_reads_back()
    ensures { JoinedReadsBack }
{}

/// After each element what is written is the joining of the elements so far, less the terminator.
pub fn after_each_element()
    ensures { AfterEachElement }
{}

/// Segments that are written out, the places of their parts falling, repeated, 0 or past what is filled.
pub fn segments_written()
    ensures { SegmentsWritten }
{}

/// Documents, what they read as, and byte strings that are none.
pub fn documents_read()
    ensures { DocumentsRead }
{}
