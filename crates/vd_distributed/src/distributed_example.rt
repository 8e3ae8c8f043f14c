//! Two hosts that run over links, as data: what is asked of programs that run over links is met. Nothing is computed here.

ghost use Rattle.vd_distributed.specs.Instance.{TwoHostsRun};

/// One host takes an input and sends it to the other, which prints it. The two runs are what is asked of running hosts, and nothing
/// outside fails; both end well, and their outputs hold exactly the bytes that belong to the source's outputs to each.
pub fn two_hosts_run()
    ensures { TwoHostsRun }
{}
