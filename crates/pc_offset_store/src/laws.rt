//! Laws of the broker. Each function does nothing; its clause is the law.

ghost use Rattle.std.specs.Prelude.{◌≡◌, ℕ, List, map};
ghost use Rattle.pc_model.specs.Broker.{Broker};
ghost use Rattle.pc_offset_store.specs.Steps.{AreAnswered, after_frames};

/// After any frames that were answered, one after the other, what the broker stores is the fold of
/// the model's steps over them.
pub fn the_store_is_the_fold_of_its_frames()
    ensures { (frames : List (List ℕ × List ℕ)) (old new : Broker) → AreAnswered frames old new
        → new ≡ after_frames (map (λ f. f.0) frames) old }
{}
