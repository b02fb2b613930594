//! What follows from the abstract specification.
#![tactic(auto)]

mod laws;

pub use laws::{
    acknowledged_is_stored, acknowledged_within_applied, always_settles, applied_are_steps,
    calls_are_made_once, circles_lead_up, detached_is_refused, effects_keep_acyclic,
    effects_keep_lawful, effects_lower, encodes_once, gone_is_refused, image_once,
    kept_changes_nothing, lawful_is_at_rest, lawful_is_encodable, legal_is_in_order,
    legal_stays_legal, logs_fit, meeting_is_legal, messages_are_sent_as_canonical,
    names_move_lawfully, not_now_exactly, nothing_new_is_acknowledged, one_end, one_new_state,
    one_run, opening_is_lawful, others_fade, own_attach_asks, places_hold_calls,
    port_moves_lawfully, reads_own_writes, record_once, recorded_receives_are_done,
    recorded_sends_are_done, records_are_owned, recovers_known_versions, recovers_lawful,
    recovers_once, replies_by_call, runs_keep_lawful, settled_is_lawful, spaces_are_made,
    steps_keep_lawful, tickets_are_steps,
};
