//! What a deal file holds.

use vd_channel_crypto::Secrets;
use vd_tape::Deal;

/// What a file of version 2 holds: a deal, and what its host knows of the dealing besides.
#[derive(Drop)]
pub struct SecretDeal {
    pub deal: Deal,
    pub secrets: Secrets,
}

/// What a deal file holds: a deal, and in version 2 what its host knows of the dealing besides.
#[derive(Drop)]
pub struct Dealt {
    pub deal: Deal,
    pub secrets: Option<Secrets>,
}
