//! Laws: what a program of constants needs of RAM, of tables and of the stack, and that an image agrees with sessions on a smaller stack than its own where
//! each of them costs more than that.
#![tactic(auto)]
