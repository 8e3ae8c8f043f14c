ghost use Rattle.std.specs.Prelude.{◌≡◌};
ghost use Rattle.vd_edge.specs.Store.{StoresOpenNothing, access_of, is_deal, made_mode};

/// How a file that is made may be read and written.
#[derive(Clone, Copy, PartialEq, Eq)]
pub enum Access {
    /// By its owner alone.
    Private,
    /// As the system makes files.
    Usual,
    /// As these bits of a mode say.
    Mode(u32),
}

/// What stands at a name.
#[derive(Clone, Copy, PartialEq, Eq)]
pub enum Standing {
    /// Nothing.
    Nothing,
    /// A plain file that may be written, with these bits of its mode.
    Plain(u32),
    /// No plain file, such as a device.
    Special,
}

/// Whether these are the bytes of a deal.
pub(crate) fn is_deal(bytes: &[u8]) -> bool
    ensures { result ≡ is_deal bytes.now }
{
    bytes.starts_with(b"viaduct-deal ")
}

/// The access of a new file with these bytes in place of what stands there, and `None` where that cannot be replaced. A deal
/// is for its owner alone.
pub(crate) fn access_of(standing: Standing, bytes: &[u8]) -> Option<Access>
    ensures { result ≡ access_of standing bytes.now }
{
    let is_deal = is_deal(bytes);
    match standing {
        Standing::Special => None,
        Standing::Nothing | Standing::Plain(_) if is_deal => Some(Access::Private),
        Standing::Nothing => Some(Access::Usual),
        Standing::Plain(mode) => Some(Access::Mode(mode)),
    }
}

/// The bits of the mode with which a file of this access is made, and `None` where the system says them: one of a given mode is
/// its owner's alone until its bytes stand in it.
pub(crate) fn made_mode(access: Access) -> Option<u32>
    ensures { result ≡ made_mode access }
{
    match access {
        Access::Usual => None,
        Access::Private | Access::Mode(_) => Some(0o600),
    }
}

/// Whoever could not read what stood at a name cannot read what is stored there, and nobody but its owner can read a deal.
pub fn stores_open_nothing()
    ensures { StoresOpenNothing }
{}
