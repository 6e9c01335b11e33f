// What columns mean is in `specs/`. There is no code here: the enums that name what is asked of columns are in `meaning`.
#![tactic(auto)]
