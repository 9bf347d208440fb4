// What loops over tables of any size share: the bucket of a port, whether a list has a port twice.
#![tactic(auto)]

ghost use Rattle.std.specs.Prelude.{◌≡◌, ◌<◌};
ghost use Rattle.model.specs.Interface.{distinct};
ghost use Rattle.model.specs.Lists.{any};
ghost use Rattle.model.specs.Records.{same_port};
ghost use Rattle.loops.specs.Chains.{BUCKETS, bucket_of};

use model::Port;

// How many chains there are, the same for kernels of every size.
pub const BUCKETS: usize = 64;

// The bucket of an owner and a port: residues of a prime, spread by a multiplication (Knuth), so that keys with a common factor other than that prime fall into many buckets.
#[tactic(auto, unfolding(crate::specs::Chains::bucket_of))]
pub fn bucket_of(owner: usize, key: u64, realm: u64) -> usize
    ensures { (result ≡ bucket_of owner key realm) × (result < BUCKETS) }
{
    let port = (key % 65521 + realm % 65521 * 7) as usize;
    (owner % 64 * 5 + port) * 40503 % 65536 / 1024
}

// Whether a list has this port.
fn is_listed(port: Port, ports: &[Port]) -> bool
    ensures { result ≡ any (same_port port) ports.now }
{
    ports.contains(&port)
}

// Whether a list has no port twice.
#[tactic(auto, using(crate::proofs::Laws::Distinct::distinct_next, crate::proofs::Laws::Distinct::distinct_twice, crate::proofs::Laws::Distinct::distinct_end))]
pub fn distinct_ports(ports: &[Port]) -> bool
    ensures { result ≡ distinct ports.now }
{
    for (i, port) in ports.iter().enumerate() {
        if is_listed(*port, &ports[i + 1..]) {
            return false;
        }
    }
    true
}
