//! What steps of other nodes leave as it is.
ghost use Rattle.sup_world.specs.ModelStays.{ModelNodesStay, ModelMessagesStay};
ghost use Rattle.sup_world.specs.StayingNodes.{NodesStay, MessagesStay, OthersGoFurther, EntriesStay, TextsArrive};

/// A step of one node leaves the other nodes as they are, and takes no message away.
pub fn a_step_is_one_nodes()
    ensures others { NodesStay }
    ensures messages { MessagesStay }
{}

/// Whatever steps other nodes make, a node stays as it is, and each message that was sent is there.
pub fn other_steps_go_further()
    ensures { OthersGoFurther }
{}

/// Messages whose texts are read alike come alike.
pub fn a_message_is_its_text()
    ensures { TextsArrive }
{}

/// What a node answers to an act, to bytes that nobody sent or to a message that was sent, it answers after any further
/// steps of other nodes, too, and becomes the same.
pub fn an_entry_can_wait()
    ensures { EntriesStay }
{}

/// The same of the model: a step of one node leaves the other nodes as they are, and takes no message away.
pub fn a_model_step_is_one_nodes()
    ensures others { ModelNodesStay }
    ensures messages { ModelMessagesStay }
{}
