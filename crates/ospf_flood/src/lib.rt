//! OSPF flooding (RFC 2328 section 13): the link state retransmission lists, and what is done with an LSA
//! that comes in a Link State Update.
//!
//! | File | What it has |
//! |---|---|
//! | `retransmission.rt` | `Lists`, the retransmission lists of all ports |
//! | `retransmission_list.rt` | the list of one port |
//! | `port_masks.rt` | masks of ports |
//! | `verdict.rt` | `Verdict`, and the table by which an LSA is judged |
//! | `receiving.rt` | `receive`: the verdict, and what it does to the database and the lists |
//! | `flooding.rt` | `flood`: an LSA is put on the lists of several ports, or on none where memory is short |
//! | `laws.rt` | laws of the definitions |
//!
//! The one contract upwards: `receive` answers the verdict of the table in `specs/Verdicts.antt` and leaves
//! the database and the lists that `specs/Receiving.antt` says, or, where memory is short, those that were
//! there. What is to be sent follows from the answer, and the caller sends it.
#![tactic(auto)]

mod flooding;
mod laws;
mod port_masks;
mod receiving;
mod retransmission;
mod retransmission_list;
mod verdict;

pub use flooding::flood;
pub use laws::{a_change_is_on_its_ports, a_list_changes_at_one_lsa, receiving_is_at_one_lsa};
pub use port_masks::{only_port, with_port, without_port};
pub use receiving::{Step, receive};
pub use retransmission::Lists;
pub use std::alloc::AllocError as NoMemory;
pub use verdict::Verdict;
