// Document 02, 7 as definitions (specs/): the forecast, what is promised of it, its figures and its witnesses. No code.
#![tactic(auto)]
