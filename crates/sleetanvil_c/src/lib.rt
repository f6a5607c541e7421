// The archive that C links: the functions of the headers, each a call of the proved function of its name.
#![tactic(auto)]

mod besides;
mod card_slot;
mod keeping;
mod page;
mod runs;
