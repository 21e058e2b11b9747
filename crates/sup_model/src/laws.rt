//! Laws of the model world and of the code's world beside it, each the contract of a function that does nothing.
ghost use Rattle.sup_model.specs.Headline.{MainTheorem, RepliesTellDots};
ghost use Rattle.sup_model.specs.Follows.{StepsFollow, NewStands, WorldsStand, RunsFollow, SettlingSettles};
ghost use Rattle.sup_model.specs.Arrivals.{BytesArrive, OtherBytesAreRefused};
ghost use Rattle.sup_model.specs.ChildRestarts.{RestartsStay};
ghost use Rattle.sup_model.specs.GoingOn.{ActsGoOn, DeliveriesGoOn};
ghost use Rattle.sup_model.specs.Memory.{StopsAreAnswered, FirstChecksComeFirst};
ghost use Rattle.sup_model.specs.OneNode.{ActsStand, DeliveriesStand};
ghost use Rattle.sup_model.specs.OneStation.{PlainActsStand, ShipsStand, MailStands};
ghost use Rattle.sup_model.specs.Shipments.{ShipmentIsEnough};

/// After any list of steps from a new world, answered as they may be: what the code has of a node stands for the operations
/// that the node absorbed; nodes that absorbed the same operations agree; adds that no absorbed removal names stay; each
/// running node keeps exactly the children that are placed on it, each once, in the run and the order in which its effects
/// started them; each stop is of a run that runs then, and each start of a child of which none does; and no two operations add
/// the same dot.
pub fn main_theorem()
    ensures { MainTheorem }
{}

/// The dots that the replies of a run tell are those that its operations add, in their order.
pub fn replies_tell_dots()
    ensures { RepliesTellDots }
{}

/// A step of the code's world follows the model: its answer is one that the model allows, and the world stands for the
/// model's after it.
pub fn steps_follow()
    ensures { StepsFollow }
{}

/// A new world of the code stands for the model's new world.
pub fn new_worlds_stand()
    ensures { NewStands }
{}

/// After settling each of its nodes has all that any of them had absorbed.
pub fn settling_settles()
    ensures { SettlingSettles }
{}

/// The deltas since a state that the receiver has are as good as the whole state.
pub fn a_shipment_is_enough()
    ensures { ShipmentIsEnough }
{}

/// After any list of steps from a new world the answers of the code's world are those of a run of the model, and it stands for
/// the model's.
pub fn runs_follow()
    ensures { RunsFollow }
{}

/// What stands for a model does so node by node: a state, and that of the newest own operation, for the model's operations; a
/// window that holds the newest restarts for one that holds all; a delta or a push, joined to its receiver's state, for the
/// receiver's operations and then the message's. What else the model has of a node or a message is equal.
pub fn worlds_stand()
    ensures { WorldsStand }
{}

/// A restart of a child changes its node's supervisor alone, and what is kept is still what is wanted.
pub fn a_restarted_child_stays()
    ensures { RestartsStay }
{}

/// What a running node keeps and still wants after an act, or after a message, it keeps in the same run: unless that run is the
/// one that exits, or the node stops or gives up.
pub fn what_stays_wanted_goes_on()
    ensures acts { ActsGoOn }
    ensures deliveries { DeliveriesGoOn }
{}

/// Bytes that are read as a message come to a station as the world brings that message whole. Other bytes are refused: `Down`
/// where it is stopped, else `BadMessage`.
pub fn bytes_come_as_they_are_read()
    ensures read { BytesArrive }
    ensures other { OtherBytesAreRefused }
{}

/// Want of memory never stands in place of the answer to a stop, nor of a refusal that an event's first checks give.
pub fn memory_is_wanted_late()
    ensures stop { StopsAreAnswered }
    ensures first { FirstChecksComeFirst }
{}

/// A node whose state stands for operations answers an act, and a delta or a push that stands for operations, as the
/// definition of one node over operations does: the same refusal, or the same reply and effects; and then its state stands
/// for the operations that it has by then. It is so where no dot has two adds in what it has and what comes.
pub fn a_node_answers_as_its_definition()
    ensures acts { ActsStand }
    ensures deliveries { DeliveriesStand }
{}

/// So does a station whose numbers are within the greatest, for mail as for acts, where an acknowledgement's number is no greater
/// than the count. Which deltas a ship sends isn't said, and one that the node over operations makes is refused as up to date exactly
/// where all changes are acknowledged.
pub fn a_station_answers_as_its_node()
    ensures acts { PlainActsStand }
    ensures ships { ShipsStand }
    ensures mail { MailStands }
{}
