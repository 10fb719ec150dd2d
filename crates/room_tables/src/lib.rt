//! Definitions and lemmas alone, and no code: the six tables of a room in a database, what each statement on them
//! means, and which records their rows are. `room_sql` has the code, and is proved over them.
#![tactic(auto)]
