//! Laws of trees of nodes, on which those of texts rest: for those who prove beyond this crate.

pub use jsonc_edit::commas::laws::{commas_are_set, documents_say_the_same};
pub use jsonc_edit::laws::{
    changed_leaves_change_their_place, documents_have_fitting_layouts, documents_stay_sound,
    documents_without_a_comment, each_node_has_its_place, laid_values_may_stand, one_path,
    replaced_nodes_change_their_place, replaced_values_are_written,
    replaced_values_change_the_document, replaced_values_take_the_path,
    spliced_rows_change_their_place,
};
pub use jsonc_edit::multiline::laws::{
    containers_are_spread_out, spread_containers_stay_spread, spread_documents_say_the_same,
};
pub use jsonc_edit::remove::laws::{elements_are_taken_out, removed_elements_are_gone};
pub use jsonc_edit::set::laws::{
    cleared_documents_are_bare, documents_have_their_first_value, properties_are_renamed,
    replaced_properties_are_written, set_booleans_are_written,
};
pub use jsonc_edit::space_laws::{
    no_further_space_is_due, spaces_are_no_elements, spaces_come_before_elements,
};
pub use jsonc_insert::elements::laws::{
    arrays_have_their_brackets, elements_come_into_rows, inserted_elements_are_written,
    inserted_properties_are_written,
};
pub use jsonc_insert::laws::{blanks_alone_leave, elements_come_in, numbers_past_the_end_append};
pub use jsonc_insert::members::laws::{
    blanks_alone_leave as blanks_alone_leave_objects,
    numbers_past_the_end_append as numbers_past_the_end_append_properties,
    objects_are_spread_first, objects_change_alone, properties_come_in,
};
pub use jsonc_insert::named::laws::named_values_are_written;
pub use jsonc_insert::properties::laws::properties_come_into_documents;
pub use jsonc_layout::from_input::laws::laid_values_mean_themselves;
pub use jsonc_run::promise::laws::{edits_lead, steps_are_run};
pub use jsonc_sort::again::laws::{elements_come_in_order, second_sorts_change_nothing};
pub use jsonc_sort::groups::laws::places_in_order_stay;
pub use jsonc_sort::laws::{
    containers_are_sorted, few_elements_stay, sorted_containers, sorted_documents,
};
pub use jsonc_sound::changes::{
    changed_documents_have_changed_values, changes_keep_the_leaves_around,
    changes_of_trivia_keep_the_leaves_around, changes_of_trivia_keep_the_value, lines_come_apart,
    sound_documents_hold_sound_values, values_come_apart, values_end_before_separators,
};
pub use jsonc_sound::marks::{
    blanks_have_no_marks, comments_without_end_blanks, laid_values_are_written, marks_give_way,
    one_list_of_marks, other_comments_stay, sound_trees_print_their_marks,
    values_and_trivia_give_way,
};
pub use jsonc_sound::sound::{
    documents_stay_sound_with_trivia, rows_tell, rows_with_commas, shapes_come_apart, sound_trees,
    spaces_may_be_put,
};
