//! What holds of all streams. Nothing is computed here: each function's clause is a law.

ghost use Rattle.vd_link.specs.Laws.{FaultsExcludeGreetings, FaultsExcludePackets, StreamsHaveOneReading};

/// Two readings of a stream as equally many packets are the same.
pub fn streams_have_one_reading()
    ensures { StreamsHaveOneReading }
{}

/// A stream that begins with the packet that is awaited has no fault of a frame.
pub fn faults_exclude_packets()
    ensures { FaultsExcludePackets }
{}

/// A stream that begins with the greeting that is awaited has no fault of a greeting.
pub fn faults_exclude_greetings()
    ensures { FaultsExcludeGreetings }
{}
