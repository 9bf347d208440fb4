// Functions on one record: read, made, tested, changed.
#![tactic(auto)]

pub mod answers;
pub mod checks;
pub mod phases;
pub mod ports;
pub mod stored;
pub mod tests;
pub mod transitions;

pub use answers::answer_number;
pub use checks::{blocks, refuse_if};
pub use phases::is_running;
pub use ports::{binding_of, blank_binding, blank_port};
pub use stored::{
    binding_in, blank_declaration, blank_link, blank_node, consumer_in, dead_for, dead_link,
    declaration_of, declared_port, either_declaration, either_link, is_blank_declaration,
    is_blank_link, is_blank_node, live_link, new_node, owner_in, parent_in, port_in, provider_in,
    provision, with_phase,
};
pub use tests::{
    has_parent, is_child_of, is_consistent, is_declaration, is_dependency_of, is_installed,
    is_live_link_of, is_pending, is_providing, is_restoring, is_serving, links_to, must_leave,
    no_parent, relies_on,
};
pub use transitions::{absent_node, restored_node, restoring_node, retired_node, started_node};
