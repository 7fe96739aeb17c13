//! The law of a table, stated about look-ups and the ledger. It is definitions only, for the steps of the table and for
//! images of it.
#![tactic(auto)]
