// Declarations chained by bucket, so that a lookup reads one chain.
ghost use Rattle.std.specs.Prelude.{◌≡◌, ◌≤◌, ◌<◌, ◌||◌, ℕ, false, length, get_or, replicate};
ghost use Rattle.model.specs.Lists.{any};
ghost use Rattle.model.specs.Records.{blank_declaration};
ghost use Rattle.model.specs.Soundness.{is_declaration};
ghost use Rattle.soundness.specs.Chains.{BothChained, pushed};

use loops::{BUCKETS, bucket_of};
use model::{Declaration, Port};
use sizes::DECLARATIONS;

// c stands for entry c - 1, and 0 for none: the last entry of each bucket, and before each entry the last one of its bucket.
#[derive(Drop)]
pub(crate) struct Chain {
    pub first: [usize; BUCKETS],
    pub next: [usize; DECLARATIONS],
}

// Declarations, chained by their ports, and by their owners and ports.
#[derive(Drop)]
pub(crate) struct Chains<'a> {
    pub declarations: &'a [Declaration],
    pub by_port: Chain,
    pub by_owner: Chain,
    ghost chained: { BothChained declarations.now (length declarations.now) by_port by_owner },
}

impl Chain {
    fn empty() -> Self
        ensures { result ≡ record { first = replicate BUCKETS 0; next = replicate DECLARATIONS 0 } }
    {
        Self {
            first: [0; BUCKETS],
            next: [0; DECLARATIONS],
        }
    }

    // Puts entry i before the others of its bucket.
    fn push(&mut self, i: usize, bucket: usize)
        requires { (i < DECLARATIONS) × (bucket < BUCKETS) }
        ensures { self.new ≡ pushed self.old i bucket }
    {
        self.next[i] = self.first[bucket];
        self.first[bucket] = i + 1;
    }
}

impl<'a> Chains<'a> {
    pub(crate) fn of(declarations: &'a [Declaration]) -> Self
        requires { length declarations.now ≤ DECLARATIONS }
        ensures { result.declarations.now ≡ declarations.now }
    {
        let mut by_port = Chain::empty();
        let mut by_owner = Chain::empty();
        for (i, d) in declarations.iter().enumerate() {
            let Port { key, realm } = records::declared_port(*d);
            by_port.push(i, bucket_of(0, key, realm));
            by_owner.push(i, bucket_of(records::owner_in(*d), key, realm));
        }
        Self {
            declarations,
            by_port,
            by_owner,
        }
    }

    // Whether there is a declaration of this owner and port, a provision or a dependency.
    pub(crate) fn declares(&self, owner: usize, port: Port, provision: bool) -> bool
        ensures { result ≡ any (is_declaration owner port provision) self.now.declarations.now }
    {
        let mut c = self.by_owner.first[bucket_of(owner, port.key, port.realm)];
        while c > 0 {
            let d = self.declarations[c - 1];
            if records::is_declaration(owner, port, provision, d) {
                return true;
            }
            c = self.by_owner.next[c - 1];
        }
        false
    }

    // Whether there is a dependency of this owner and port, each of which is marked as met.
    pub(crate) fn meet(&self, owner: usize, port: Port, met: &mut [bool; DECLARATIONS]) -> bool
        ensures found { result ≡ any (is_declaration owner port false) self.now.declarations.now }
        ensures marked { let ds = self.now.declarations.now in (i : ℕ) → i < length ds → get_or met.new i false
            ≡ is_declaration owner port false (get_or ds i blank_declaration) || get_or met.old i false }
    {
        let mut found = false;
        let mut c = self.by_owner.first[bucket_of(owner, port.key, port.realm)];
        while c > 0 {
            let d = self.declarations[c - 1];
            if records::is_declaration(owner, port, false, d) {
                met[c - 1] = true;
                found = true;
            }
            c = self.by_owner.next[c - 1];
        }
        found
    }
}
