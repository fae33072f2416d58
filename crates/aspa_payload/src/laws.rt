//! Laws of payload files: the contract of each function is the law, and its body does nothing.
ghost use Rattle.aspa_payload.specs.Laws.{
  EachAttestationHasOnePayload,
  EachFileHasOneReading,
  EachFileOfLinesHasOneReading,
  OnePayloadAtTheFront,
  WrittenIsReadAgain,
};

/// Bytes that are a payload are read as it again, whatever follows them.
pub fn written_is_read_again()
    ensures { WrittenIsReadAgain }
{}

/// Bytes begin with at most one payload.
pub fn one_payload_at_the_front()
    ensures { OnePayloadAtTheFront }
{}

/// Each attestation that keeps the rules has exactly one payload: no second spelling of it is read.
pub fn each_attestation_has_one_payload()
    ensures { EachAttestationHasOnePayload }
{}

/// Each file of payloads has one reading: it is good and has one union, or it is refused at one unit for one cause.
pub fn each_file_has_one_reading()
    ensures { EachFileHasOneReading }
{}

/// Each file of lines has one reading.
pub fn each_file_of_lines_has_one_reading()
    ensures { EachFileOfLinesHasOneReading }
{}
