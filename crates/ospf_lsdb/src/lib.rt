//! The link-state database of an OSPF router (RFC 2328 sections 12 to 14): a finite map from the name
//! of an LSA (its type, id and advertising router) to the instance that is kept.
//!
//! | File | What it has |
//! |---|---|
//! | `key.rt` | `LsaKey`, the name of an LSA, and its order |
//! | `kept.rt` | `Kept`, an LSA with when and how it came, and its age |
//! | `lsdb.rt` | `Lsdb`, the database: looking up, installing, noting, flushing, dropping |
//! | `aging.rt` | which LSAs reach MaxAge, and which have it |
//! | `origination.rt` | the router's own LSA |
//! | `laws.rt` | laws of the definitions |
//!
//! The one contract upwards: in a clause an `Lsdb` is the list of its entries in ascending order of the
//! keys, and each call is the call of that name on the finite map, as `specs/Database.antt` says it.
#![tactic(auto)]

mod aging;
mod kept;
mod key;
mod laws;
mod lsdb;
mod origination;

pub use kept::Kept;
pub use key::{LsaKey, key_of, own_key};
pub use laws::{a_change_is_at_one_lsa, a_change_is_at_one_name, aging_is_at_each_lsa};
pub use lsdb::Lsdb;
pub use std::alloc::AllocError as NoMemory;
