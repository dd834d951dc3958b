//! Definitions: the JSON forms of requests, and the texts of replies.
#![tactic(auto)]
