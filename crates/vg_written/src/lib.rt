//! What the tables of a typed program keep of the fields, methods and classes that a text declares, as definitions.
#![tactic(auto)]
