//! What holds of all histories.
ghost use Rattle.std.specs.Prelude.{◌≡◌, List, All, map};
ghost use Rattle.sup_history_text.specs.Readings.{session_said};
ghost use Rattle.sup_history_text.specs.Sessions.{IsSession, sessions_lines};
ghost use Rattle.sup_history_text.specs.declared.session.Session.{Session};

/// Lines are read in one way: sessions of the same lines say the same.
pub fn a_history_has_one_reading()
    ensures { (xs ys : List Session) → All IsSession xs → All IsSession ys
        → sessions_lines xs ≡ sessions_lines ys → map session_said xs ≡ map session_said ys }
{}
