//! What a program of the source language means: its values and operators, the steps that its tree stands for, its
//! initialisation and its sessions, as definitions.
#![tactic(auto)]
