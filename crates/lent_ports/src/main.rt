// check_insert over lent slices of 0, 1, 31, 32, 33 and 40 ports, beside Kernel::check_insert over port lists.
//
// For each kernel a line `== NAME`, then a line for each number of dependencies: that number, `slices`
// and the answers over slices for 0, 1, 31, 32, 33 and 40 provisions, `lists` and those over lists.
// An answer is 0 for done, else the refusal's number.
#![tactic(auto)]

ghost use Rattle.std.specs.Prelude.{◌≡◌, ◌≤◌, take};
ghost use Rattle.kernel.specs.Fields.{ask};
ghost use Rattle.model.specs.Answers.{answer};
ghost use Rattle.model.specs.Insertion.{check_insert};
ghost use Rattle.model.specs.Interface.{port_list};
ghost use Rattle.model.specs.Refusals.{Reply};
ghost use Rattle.sizes.specs.Sizes.{sizes};

use kernel::Kernel;
use model::{Error, Parent, Port, PortList};
use std::array;
use std::fmt::Display;
use text::logs::heading;
use text::made::no_ports;

// How many dependencies are tried, and how many provisions.
const COUNTS: [usize; 6] = [0, 1, 31, 32, 33, 40];

// The ports 0/REALM to 39/REALM.
fn ports_of(realm: u64) -> [Port; 40] {
    array::from_fn(|key| Port {
        key: key as u64,
        realm,
    })
}

// The same, with place 31 equal to place 0.
fn repeated(realm: u64) -> [Port; 40] {
    let mut ports = ports_of(realm);
    ports[31] = ports[0];
    ports
}

// The list of the first n of these ports; one of more than 32 has the first 32.
fn listed(ports: &[Port; 40], n: usize) -> PortList {
    let mut list = no_ports();
    list.ports.copy_from_slice(&ports[..32]);
    list.count = n;
    list
}

// Writes at once; a write that fails is passed over.
fn write(rt: &HostRuntime, value: impl Display + Drop) {
    let _ = rt.print(value);
}

fn write_answer(rt: &HostRuntime, answer: Result<(), Error>) {
    write(rt, format_args!(" {}", records::answer_number(answer)));
}

// What is asked: a kernel, and the parent and the dependencies of an insertion.
#[derive(Clone, Copy)]
struct Asked<'a> {
    name: &'a str,
    kernel: Kernel,
    parent: Parent,
    wanted: [Port; 40],
}

impl Asked<'_> {
    // check_insert over the first n and m ports, lent.
    fn over_slices(&self, n: usize, offered: &[Port; 40], m: usize) -> Result<(), Error>
        requires { (n ≤ 40) × (m ≤ 40) }
        ensures { result ≡ answer (ask self.now.kernel (Reply.refused Error.Damaged) (λ T. check_insert sizes T self.now.parent (port_list (take n self.now.wanted)) (port_list (take m offered.now)))) }
    {
        slices::check_insert(&self.kernel, self.parent, &self.wanted[..n], &offered[..m])
    }

    // Kernel::check_insert over the lists of the first n and m ports.
    fn over_lists(&self, n: usize, offered: &[Port; 40], m: usize) -> Result<(), Error> {
        let dependencies = listed(&self.wanted, n);
        self.kernel
            .check_insert(self.parent, dependencies, listed(offered, m))
    }

    // The answers for n dependencies.
    fn row(&self, rt: &HostRuntime, n: usize, offered: &[Port; 40])
        requires { n ≤ 40 }
    {
        write(rt, n);
        write(rt, " slices");
        for m in COUNTS {
            write_answer(rt, self.over_slices(n, offered, m));
        }
        write(rt, " lists");
        for m in COUNTS {
            write_answer(rt, self.over_lists(n, offered, m));
        }
        write(rt, "\n");
    }

    fn table(&self, rt: &HostRuntime) {
        heading(rt, self.name.as_bytes());
        let offered = ports_of(1);
        for n in COUNTS {
            self.row(rt, n, &offered);
        }
    }
}

// A kernel whose one component provides KEY/1.
fn providing(key: u64) -> Kernel {
    let mut one = no_ports();
    one.ports[0] = Port { key, realm: 1 };
    one.count = 1;
    Kernel::new().insert(Parent::None, no_ports(), one).kernel
}

// A kernel whose one component provides 0/1 and is retired.
fn retired() -> Kernel {
    providing(0).retire(0).kernel
}

// More identities than a kernel holds.
fn unsound() -> Kernel {
    Kernel {
        node_count: 65,
        ..Kernel::new()
    }
}

// Asks of one kernel, so that no more than one is held.
fn ask(rt: &HostRuntime, name: &str, kernel: Kernel, parent: Parent, wanted: [Port; 40]) {
    let asked = Asked {
        name,
        kernel,
        parent,
        wanted,
    };
    asked.table(rt);
}

fn main(rt: HostRuntime) {
    let (none, wanted) = (Parent::None, ports_of(2));
    ask(&rt, "empty", Kernel::new(), none, wanted);
    ask(&rt, "first provision taken", providing(0), none, wanted);
    ask(&rt, "32nd provision taken", providing(31), none, wanted);
    ask(
        &rt,
        "32nd dependency equal to the first",
        Kernel::new(),
        none,
        repeated(2),
    );
    ask(&rt, "parent unknown", providing(0), Parent::Of(1), wanted);
    ask(&rt, "parent retired", retired(), Parent::Of(0), wanted);
    ask(&rt, "unsound", unsound(), none, wanted);
}
