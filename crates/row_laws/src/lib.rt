//! Laws of documents whose rows have their facts: what is written is read again, and what is read is in range, over any tables.
//! No functions; a crate of its own, so that a law more proves nothing else again.
#![tactic(auto)]
