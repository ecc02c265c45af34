//! Laws that lead from one call to the next, and from names and paths to what is there; and those that
//! lead from what a call says to what users rely on.
//!
//! The texts that write a float are the numbers of the grammar, and each writes one
//! ([`numbers_have_one_value`]). A line and a column are those of one place at most ([`one_place`]).
//!
//! At a place of a text there is at most one lexeme or comment ([`one_lexeme`]), and a text has at most one list of
//! them ([`one_list_of_tokens`]). Comments, strings and numbers end where they must ([`block_comment_ends_first`],
//! [`strings_end_at_their_quote`], [`numbers_end_at_their_followers`]), and no lexeme depends on what follows it, beyond
//! the next character ([`lexemes_stand_alone`]). Lexemes look at six options ([`lexemes_look_at_six_options`]), and a
//! document stays one where more is allowed ([`documents_stay_where_more_is_allowed`]). A string represents what is
//! computed of its characters ([`strings_are_computed`]), and what is spelled for one is such a string
//! ([`spelled_strings_are_strings`]).
//!
//! Of a lexeme, a string or a text at most one fault can be reported ([`one_fault`], [`one_fault_of_a_string`],
//! [`one_reading`]), and where one is reported, there is no document ([`faults_are_of_no_document`]); where reading comes to
//! the end, there is one ([`reading_to_the_end`]).
//!
//! A text has at most one value ([`one_value`]), and what is at most 256 levels deep has at most 512
//! containers and properties around a value ([`around_is_within_twice_depth`]). Equality of values is one
//! ([`equality`]), is that of their parts ([`equality_by_parts`]), and copies are equal
//! ([`equality_of_copies`]). What `to_value` answers of a parsed document is the text's value
//! ([`documents_give_their_value`]), and a node gives one value or none ([`one_value_is_given`],
//! [`values_are_given`]). What is found of a name in an object is the first of that name in the
//! object's value ([`names_are_those_of_values`]).
//!
//! Edits that are made are named in the document before them, one after another ([`edits_make_steps`]), and
//! have their place exactly where the document's value has it ([`places_are_named`]). No call moves a node
//! from one parent to another, and after any list of calls the nodes are a tree; calls that are refused, or
//! of nodes that are not in the document, leave it as it was ([`calls_keep_parents`]); and what each call
//! of a typed node says is such a call ([`typed_calls_are_calls`]).
//! What becomes of the text of a sound document is the step of the call, and what becomes of its tree follows from
//! what the call says of the nodes, by the laws of [`nodes`].
//! Where commas may not be missing no space is needed where children are removed ([`nearest_tell`]), so a removal from
//! a sound document needs no memory, of a value, a property or a comment ([`removals_want_no_memory`]).
//!
//! Rules of headers but a caller's pin comments only where a blank line is ([`rules_pin_under_blank_lines`]).
//! The groups of a sort keep their places ([`groups_keep_their_places`], [`blank_lines_part_groups`]); a
//! sorted list of children has each comment and each element once ([`sorted_rows_keep_their_nodes`]), and so has the sorted
//! container, with its brackets, while comments deeper are where they were
//! ([`sorted_containers_keep_their_children`]); and a second sort changes no byte
//! ([`second_sorts_change_no_byte`], [`second_sorts_by_key_change_no_byte`]).
//!
//! What a pointer prints is parsed as the same ([`pointers_are_read_back`]), a text is one pointer or has one fault
//! ([`pointers_are_read_in_one_way`]), and a pointer refers to one value at most ([`pointers_refer_to_one_value`]). What is
//! found by a pointer that refers to a node is that node ([`pointers_lead_back`]). A patch of tests alone changes no byte
//! ([`tests_change_nothing`]). What a fault shows of a name is in one line ([`names_are_shown_in_one_line`]).
//!
//! The laws of trees of nodes, on which these rest, are in [`nodes`].

pub mod nodes;

pub use crate::numbers::laws::numbers_have_one_value;
pub use crate::patch::laws::{
    names_are_shown_in_one_line, pointers_are_read_back, pointers_are_read_in_one_way,
    pointers_lead_back, pointers_refer_to_one_value, tests_change_nothing,
};
pub use crate::paths::laws::{
    each_node_stands_at_its_place, names_lead_over_nodes, nodes_have_their_values,
    one_edit_puts_or_drops, one_operation_puts_or_drops, one_value_at_names, values_are_put,
    what_is_read_stands_at_paths, what_stands_can_leave, what_was_put_stands_there,
    worked_equal_names,
};
pub use crate::places::laws::one_place;
pub use jsonc_cst::laws::{
    descendants_are_those_below, documents_give_their_value, entries_move_their_comments,
    typed_calls_are_calls,
};
pub use jsonc_cst::sorted::laws::{
    blank_lines_part_groups, groups_keep_their_places, rules_pin_under_blank_lines,
    second_sorts_by_key_change_no_byte, second_sorts_change_no_byte,
};
pub use jsonc_edit::space_laws::{nearest_tell, removals_want_no_memory};
pub use jsonc_layout::input::laws::spelled_strings_are_strings;
pub use jsonc_layout::to_input::laws::{one_value_is_given, values_are_given};
pub use jsonc_run::laws::{
    calls_keep_parents, edits_make_steps, names_are_those_of_values, places_are_named,
    sorted_containers_keep_their_children, sorted_rows_keep_their_nodes,
};
pub use jsonc_run::promise::laws::{runs_join, shown_are_documents};
pub use jsonc_scan::laws::one_fault;
pub use jsonc_text::laws::{
    around_is_within_twice_depth, block_comment_ends_first, documents_stay_where_more_is_allowed,
    lexemes_look_at_six_options, lexemes_stand_alone, numbers_end_at_their_followers, one_lexeme,
    one_list_of_tokens, one_value, strings_end_at_their_quote,
};
pub use jsonc_text::string::laws::{one_fault as one_fault_of_a_string, strings_are_computed};
pub use jsonc_value::laws::{equality, equality_by_parts, equality_of_copies};
pub use jsonc_walk::laws::{faults_are_of_no_document, one_reading, reading_to_the_end};
