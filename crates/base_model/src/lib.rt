//! The words that every layer's contracts speak in: parts of byte lists, numbers in them, fields joined and cut, when a failure may be
//! answered, what a flash tells, what power lost at any step of it may leave, and how a store divides it into slots. Definitions and
//! lemmas, and no code.
#![tactic(auto)]
