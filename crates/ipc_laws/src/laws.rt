// Laws over the definitions. Each is the contract of a function that does nothing, so that the check proves it.
ghost use Rattle.ipc_laws.specs.Circles.{CirclesLeadUp};
ghost use Rattle.ipc_laws.specs.NumberedSteps.{OneNewState, StepsKeepLawful};
ghost use Rattle.ipc_laws.specs.RunsKeep.{OneRun, RunsKeepLawful};
ghost use Rattle.ipc_laws.specs.EffectRanks.{EffectsKeepAcyclic, SettledIsLawful};
ghost use Rattle.ipc_laws.specs.EffectsKeep.{EffectsKeepLawful};
ghost use Rattle.ipc_laws.specs.DetachedLaws.{DetachedIsRefused, GoneIsRefused, OwnAttachAsks};
ghost use Rattle.ipc_laws.specs.HistoryLaws.{LegalIsInOrder, LegalStaysLegal, MeetingIsLegal, PlacesHoldCalls, ReadsOwnWrites};
ghost use Rattle.ipc_laws.specs.ImageLaws.{ImagesHaveOneEncoding};
ghost use Rattle.ipc_laws.specs.ItemLaws.{ItemsTileBodies, TiledBodiesHaveItems};
ghost use Rattle.ipc_laws.specs.CanonicalLaws.{MessagesAreSentAsCanonical};
ghost use Rattle.ipc_laws.specs.CanonicalRecords.{CallsAreMadeAsCanonical};
ghost use Rattle.ipc_laws.specs.NameChanges.{NamesMoveLawfully};
ghost use Rattle.ipc_laws.specs.LawfulLaws.{LawfulIsAtRest};
ghost use Rattle.ipc_laws.specs.OnceLaws.{CallsAreMadeOnce};
ghost use Rattle.ipc_model.specs.history.Once.{KeptChangesNothing};
ghost use Rattle.ipc_laws.specs.OpeningLaws.{OpeningIsLawful};
ghost use Rattle.ipc_laws.specs.StepsElsewhere.{OthersFade, SpacesAreMade};
ghost use Rattle.ipc_laws.specs.OwnedPlaces.{RecordsAreOwned};
ghost use Rattle.ipc_laws.specs.PortChanges.{PortMovesLawfully};
ghost use Rattle.ipc_laws.specs.RecordedMessages.{RecordedSendsAreDone};
ghost use Rattle.ipc_laws.specs.RecordedReceives.{RecordedReceivesAreDone};
ghost use Rattle.ipc_laws.specs.RecordedReplies.{RepliesByCall};
ghost use Rattle.ipc_laws.specs.RecordedSteps.{RecordedStepsAreRecords};
ghost use Rattle.ipc_laws.specs.RecoveryLaws.{RecoversKnownVersions, RecoversLawful, RecoversOnce, EncodesOnce};
ghost use Rattle.ipc_laws.specs.RunLaws.{RecordsRunAsCanonical};
ghost use Rattle.ipc_laws.specs.Encoding.{LawfulIsEncodable};
ghost use Rattle.ipc_laws.specs.Settling.{AlwaysSettles, EffectsLower};
ghost use Rattle.ipc_laws.specs.RecordEncodings.{RecordsHaveOneEncoding};
ghost use Rattle.ipc_laws.specs.StepLaws.{OneEnd};
ghost use Rattle.ipc_laws.specs.WorldLaws.{NotNowExactly, AcknowledgedIsStored, AcknowledgedWithinApplied};
ghost use Rattle.ipc_laws.specs.WorldRuns.{AppliedAreSteps, NothingNewIsAcknowledged, LogsFit, TicketsAreSteps};

/// A reply shows each choice that the machine made: from a lawful state, a task's call with a given reply leaves one
/// state. That includes sends and receives.
pub fn one_new_state()
    ensures { OneNewState }
{}

/// Each effect lowers the measure: carried reply and body rights, requests, live ports, and effects left.
pub fn effects_lower()
    ensures { EffectsLower }
{}

/// So every list of effects settles.
pub fn always_settles()
    ensures { AlwaysSettles }
{}

/// Effects settle in one state.
pub fn one_end()
    ensures { OneEnd }
{}

/// A step changes no name of a space that its caller isn't in, except that names of ports that die become dead names,
/// and requests whose target's port dies are removed.
pub fn others_fade()
    ensures { OthersFade }
{}

/// Only number 20 makes a space, and its reply names that space.
pub fn spaces_are_made()
    ensures { SpacesAreMade }
{}

/// A state is lawful exactly if it is lawful with no effects left.
pub fn lawful_is_at_rest()
    ensures { LawfulIsAtRest }
{}

/// The opening state is lawful and acyclic.
pub fn opening_is_lawful()
    ensures { OpeningIsLawful }
{}

/// Each effect keeps a state lawful, if the rights that wait among the effects count as placed: each live port keeps
/// its one receive right, and no right to a dead port is left.
pub fn effects_keep_lawful()
    ensures { EffectsKeepLawful }
{}

/// A receive right can't be put into a queue from which hops, each to the port whose queue holds the receive right of
/// the one before, lead up to its port; into any other queue it can.
pub fn circles_lead_up()
    ensures { CirclesLeadUp }
{}

/// Each effect keeps a lawful state acyclic: no ports come to carry one another in a cycle.
pub fn effects_keep_acyclic()
    ensures { EffectsKeepAcyclic }
{}

/// So the state in which effects settle is lawful and acyclic.
pub fn settled_is_lawful()
    ensures { SettledIsLawful }
{}

/// A change of a space's names keeps a state lawful with its effects, if rights only move between names and effects.
pub fn names_move_lawfully()
    ensures { NamesMoveLawfully }
{}

/// A change of what a live port has besides its rights keeps a state lawful with its effects, and acyclic.
pub fn port_moves_lawfully()
    ensures { PortMovesLawfully }
{}

/// Every step keeps a state lawful and acyclic, including sends and receives.
pub fn steps_keep_lawful()
    ensures { StepsKeepLawful }
{}

/// So every run of records from a lawful and acyclic state ends in one.
pub fn runs_keep_lawful()
    ensures { RunsKeepLawful }
{}

/// And it ends in one state: records determine the state that they lead to.
pub fn one_run()
    ensures { OneRun }
{}

/// The items that are found in a body of bytes tile it: their encodings joined are the body.
pub fn items_tile_bodies()
    ensures { ItemsTileBodies }
{}

/// Items that tile a body of bytes are those that are found in it: the answer is a code exactly if none tile it.
pub fn tiled_bodies_have_items()
    ensures { TiledBodiesHaveItems }
{}

/// A message and what a record keeps of it, with 0 in place of what a send ignores, are sent alike.
pub fn messages_are_sent_as_canonical()
    ensures { MessagesAreSentAsCanonical }
{}

/// A call and what a record keeps of it are made alike.
pub fn calls_are_made_as_canonical()
    ensures { CallsAreMadeAsCanonical }
{}

/// Records run as they are kept.
pub fn records_run_as_canonical()
    ensures { RecordsRunAsCanonical }
{}

/// A send that has a record was done: its message has a size that messages may have, and nothing comes back. No refusal
/// of a send is a success.
pub fn recorded_sends_are_done()
    ensures { RecordedSendsAreDone }
{}

/// A receive that has a record, from a lawful state, shows a name of its space and a size that messages have: it
/// returns a message of this size within its limit, or it destroyed one above the limit and returns nothing.
pub fn recorded_receives_are_done()
    ensures { RecordedReceivesAreDone }
{}

/// The replies that a record of a call may have, as a table by call.
pub fn replies_by_call()
    ensures { RepliesByCall }
{}

/// What is kept of a step that has a record, from a lawful state, is a record that a segment may hold: no other
/// encoding is that of a step.
pub fn recorded_steps_are_records()
    ensures { RecordedStepsAreRecords }
{}

/// A record has one encoding: if the encodings of two records begin the same bytes, it is one record, with one number.
pub fn record_once()
    ensures { RecordsHaveOneEncoding }
{}

/// An image has one encoding, of states whose numbers fit it: if the encodings of two states begin the same bytes, it
/// is one state.
pub fn image_once()
    ensures { ImagesHaveOneEncoding }
{}

/// An image can encode every lawful state whose queues hold fewer than 2^32 messages.
pub fn lawful_is_encodable()
    ensures { LawfulIsEncodable }
{}

/// The slots of a store encode at most one base with one list of records.
pub fn encodes_once()
    ensures { EncodesOnce }
{}

/// At most one state is recovered from the slots of a store.
pub fn recovers_once()
    ensures { RecoversOnce }
{}

/// A state that is recovered is lawful and acyclic.
pub fn recovers_lawful()
    ensures { RecoversLawful }
{}

/// Slots from which a state is recovered have no open slot of a version that there isn't.
pub fn recovers_known_versions()
    ensures { RecoversKnownVersions }
{}

/// Whatever events come after an opening, no more is acknowledged than was applied, and no more is stored.
pub fn acknowledged_within_applied()
    ensures { AcknowledgedWithinApplied }
{}

/// And what is acknowledged is stored: each reply that was given saw only stored records.
pub fn acknowledged_is_stored()
    ensures { AcknowledgedIsStored }
{}

/// If the device hasn't failed, an event answers "not now" exactly if it isn't possible.
pub fn not_now_exactly()
    ensures { NotNowExactly }
{}

/// The calls that were applied are steps of the machine from the state that the opening returned.
pub fn applied_are_steps()
    ensures { AppliedAreSteps }
{}

/// Each ticket keeps the reply of a step from the state after a prefix of what was applied; it saw this prefix, and the
/// call's own record after it.
pub fn tickets_are_steps()
    ensures { TicketsAreSteps }
{}

/// No epoch log outgrows its segment, if the log that was opened didn't.
pub fn logs_fit()
    ensures { LogsFit }
{}

/// Once the device has failed, nothing more is stored, and nothing newer is acknowledged.
pub fn nothing_new_is_acknowledged()
    ensures { NothingNewIsAcknowledged }
{}

/// A legal session has seen a prefix of its history, no more was acknowledged to it than it saw, and its places ascend
/// among the records that it saw.
pub fn legal_is_in_order()
    ensures { LegalIsInOrder }
{}

/// A session reads its own writes: each answer is from a state after all its records and all that was acknowledged to
/// it.
pub fn reads_own_writes()
    ensures { ReadsOwnWrites }
{}

/// At its places stand its calls with records, in their order, and nothing else.
pub fn places_hold_calls()
    ensures { PlacesHoldCalls }
{}

/// It stays legal when others add to the history.
pub fn legal_stays_legal()
    ensures { LegalStaysLegal }
{}

/// Two legal sessions of one history are legal after they have met.
pub fn meeting_is_legal()
    ensures { MeetingIsLegal }
{}

/// A task whose space isn't there is refused every call, and nothing changes.
pub fn gone_is_refused()
    ensures { GoneIsRefused }
{}

/// So is a task that is attached to no space, whatever spaces are made.
pub fn detached_is_refused()
    ensures { DetachedIsRefused }
{}

/// An attach to the space that its task is attached to asks whether that space is there, and changes nothing.
pub fn own_attach_asks()
    ensures { OwnAttachAsks }
{}

/// If the sessions are all that there were, each record of a legal history stands at a place of one of them.
pub fn records_are_owned()
    ensures { RecordsAreOwned }
{}

/// Numbered calls are made once: each space keeps the reply of its last numbered record, whose requests never fall, and
/// a call that is asked for again is answered by that reply.
pub fn calls_are_made_once()
    ensures { CallsAreMadeOnce }
{}

/// A record whose request its space keeps already changes nothing.
pub fn kept_changes_nothing()
    ensures { KeptChangesNothing }
{}
