//! What the requests of a client know, and which locks it holds: definitions and laws, and no code
//! that a program calls.
//!
//! By `rbd_interference` what a request knows stays true as long as two requests are beside each
//! other. This crate ties that to the line that a request is in (`rbd_slots`), and to what a client
//! counts of its locks (`rbd_client`). At a slot acts the request in it, the request's way to the
//! lock of its image, or in slot 0 the release of a lock. What any of them knows is *true* by the
//! site's records, and stays so.
//!
//! ```text
//! slot 1, a `write` of image 7     the line of 7        what slot 1 knows
//! dir-find                         joined, shared       nothing
//! header-get                       waiting              that it waits for 7, not alone
//! header-get, under the lock       past                 the header of 7
//! data-write ..                    past                 and of object 0, in its turn there
//! (it has ended)                   (it has left)        nothing
//!
//! client 0, slot 1                                 the way knows        client 0 counts
//! lock-take 7       held by client 1               nothing              nothing
//! watchers-get 7    client 1 isn't there           nothing              nothing
//! block-add         done                           client 1 is fenced   nothing
//! lock-break 7      done: nobody's lock            nothing              nothing
//! lock-take 7       done: the header names client 0  (it has ended)     the lock of 7
//! header-get 7      its look under the lock                             the lock of 7
//! ```
//!
//! # Rules
//!
//! - A request owns no image but that of its line, beside the same others as it joined the line. It
//!   knows the header only once it is past its look under the lock.
//! - So a request that may go on to that look goes together with all that know the header: it finds
//!   nobody beside it that is alone, say, and is alone itself only where nobody knows it.
//! - Where others change the image too, it knows of an object only in its turn there, unless it is
//!   a flatten. It has that turn in its line as long as it knows so, since tickets are taken in the
//!   order of the line.
//! - A request that waits for nothing (a look, a listing, a `create`, a `rename`, a `resume`, a
//!   `tell`) owns nothing, and removes no image.
//! - A way to a lock knows nothing but that the owner is fenced whose lock it breaks next: that
//!   fence was the operation before.
//! - A release knows what one knows who waited for the lock, alone, and looked at no header. It
//!   goes only where the image is at rest, so nobody of the client knows the header.
//! - A lock that counts as the client's is its own at the site, unless the client is fenced: then
//!   it may be broken.
//! - Where a request knows a header, the lock counts as the client's. So two clients never know the
//!   header of one image at a time, but for one that is fenced and does nothing by it any more.
//!
//! # Contracts
//!
//! - [`laws`]: a session's calls keep this. Who may go on may act beside the others (`MayAct` of
//!   `rbd_interference`). Who joins no line, by the row of its command, waits for nothing.
//! - [`client_laws`], of any client and any records: whoever acts asks only for what it may by what
//!   it knows, knows it truly, and may do it beside its own client's requests and those of others.
//!   Behind each answer the requests know what is said of them, and all is true again, at both
//!   sites. What others do, the store's own steps, and the client's other calls leave it true.
//!
//! | file | what it says |
//! |---|---|
//! | `specs/Tied.antt` | how knowledge goes with the place in a line (`IsTied`) |
//! | `specs/Knowing.antt` | what the slots know (`AllKnow`), and that each turn is its own |
//! | `specs/Calm.antt` | requests that wait for nothing |
//! | `specs/ClientsKnowing.antt` | what whoever acts for a client knows, also behind an answer |
//! | `specs/Truth.antt` | when what a client knows and counts is true at a site (`IsTrueOf`) |
#![tactic(auto)]

pub mod client_laws;
pub mod laws;
