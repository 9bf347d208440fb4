// What the lines of a case work on, and the steps that are no call of the kernel's.
use crate::steps::{ByHand, Setting};
use kernel::Kernel;
use model::PortList;
use text::made::{declaration_of, link_of, more_ports, no_ports, node_of};
use text::words::Line;

// kept: the kernel that `back` brings back; the lists: those of the next insertion or configuration.
#[derive(Clone, Copy)]
pub struct State {
    pub kernel: Kernel,
    pub kept: Kernel,
    pub dependencies: PortList,
    pub provisions: PortList,
}

// COUNT KEY REALM STEP
fn with_ports(list: PortList, line: Line) -> PortList {
    let [count, key, realm, step, ..] = line.operands;
    more_ports(
        list,
        count.id(),
        key.number(),
        realm.number(),
        step.number(),
    )
}

impl State {
    // The empty kernel, kept too, and empty lists.
    pub fn new() -> Self {
        State {
            kernel: Kernel::new(),
            kept: Kernel::new(),
            dependencies: no_ports(),
            provisions: no_ports(),
        }
    }

    // The kernel with what a line writes.
    pub fn written(&self, how: ByHand, line: Line) -> Kernel {
        let mut kernel = self.kernel;
        let [first, second, third, ..] = line.operands;
        match how {
            ByHand::New => kernel = Kernel::new(),
            ByHand::Back => kernel = self.kept,
            ByHand::Counts => {
                kernel.node_count = first.id();
                kernel.declaration_count = second.id();
                kernel.link_count = third.id();
            }
            ByHand::Node => {
                if let Some(node) = kernel.nodes.get_mut(first.id()) {
                    *node = node_of(line);
                }
            }
            ByHand::Declaration => {
                if let Some(declaration) = kernel.declarations.get_mut(first.id()) {
                    *declaration = declaration_of(line);
                }
            }
            ByHand::Link => {
                if let Some(link) = kernel.links.get_mut(first.id()) {
                    *link = link_of(line);
                }
            }
        }
        kernel
    }

    pub fn set(&mut self, setting: Setting, line: Line) {
        match setting {
            Setting::Keep => self.kept = self.kernel,
            Setting::Dependencies => self.dependencies = with_ports(self.dependencies, line),
            Setting::Provisions => self.provisions = with_ports(self.provisions, line),
        }
    }

    // Both lists empty.
    pub fn use_up_lists(&mut self) {
        self.dependencies = no_ports();
        self.provisions = no_ports();
    }
}
