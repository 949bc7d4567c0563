//! Certificates. One is only a list of sites until `check` takes it.
ghost use Rattle.std.specs.Prelude.{◌≡◌};

use std::marker::Model;

/// An order in which a world could have recorded histories: for each entry in turn its site, from 0.
/// Clients see the sites. Each is listed as often as its history has entries.
#[derive(Debug, Drop)]
pub struct Certificate {
    sites: Vec<u8>,
}

impl Model for Certificate {
    ghost use Rattle.std.specs.Prelude.{ℕ, List};

    ghost Value = { List ℕ };

    ghost view = { λ c. c.sites.items };
}

impl Certificate {
    /// The certificate of these sites. It takes no memory.
    pub fn new(sites: Vec<u8>) -> Certificate
        ensures { result ≡ sites.items }
    {
        Certificate { sites }
    }

    /// The sites, in order.
    pub fn as_slice(&self) -> &[u8]
        ensures { result.now ≡ self.now }
    {
        self.sites.as_slice()
    }

    /// The list of the sites. It takes no memory.
    pub fn into_vec(self) -> Vec<u8>
        ensures { result.items ≡ self }
    {
        let Certificate { sites } = self;
        sites
    }
}
