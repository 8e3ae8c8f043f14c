//! What holds of both ends of a link, as laws.

ghost use Rattle.vd_channel_link.specs.ChannelHandshakeLaws.{EndsHaveTheSameKeys, HelloFaultsTell};

/// Two hosts that have met, each by the hello that the other said, have the same keys: in the direction in which one sends the other
/// receives.
pub fn ends_have_the_same_keys()
    ensures { EndsHaveTheSameKeys }
{}

/// That a hello is of another dealing is told only where its dealing is another one, and that it is from another host only where the
/// dealing is the own one.
pub fn hello_faults_tell()
    ensures { HelloFaultsTell }
{}
