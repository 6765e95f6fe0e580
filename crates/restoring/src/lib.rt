// No code: that loading what was saved restores the tables, that tables which are the same have the same text, that no saved text is longer than
// `saved_room`, and that loading is sound whatever the text.

#![tactic(auto)]
