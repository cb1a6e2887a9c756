//! Laws of option lists.

ghost use Rattle.std.specs.Prelude.{◌≡◌, ◌<◌, ◌∷◌, ◌++◌, [], ◌↔◌, ℕ, List, Some};
ghost use Rattle.std.specs.List.{All};
ghost use Rattle.dns_message.specs.Options.{IsOptionList, option_octets, options};
ghost use Rattle.dns_option_list.specs.Joined.{options_octets};

/// One option more is one pair of code and data more, as the last.
pub fn push_adds_one_pair()
    ensures { (o : List ℕ) (ps : List (ℕ × List ℕ)) (c : ℕ) (d : List ℕ) → options o ≡ Some ps
        → options (o ++ option_octets c d) ≡ Some (ps ++ (c, d) ∷ []) }
{}

/// Octets are a list of certain options exactly if they are these options, one after another. They are an option list exactly if
/// there are such options.
pub fn lists_are_joined_options()
    ensures options { (o : List ℕ) (ps : List (ℕ × List ℕ)) → All (λ x. x < 256) o → (options o ≡ Some ps) ↔ (o ≡ options_octets ps) }
    ensures list { (o : List ℕ) → All (λ x. x < 256) o → IsOptionList o ↔ ((ps : List (ℕ × List ℕ)) × (o ≡ options_octets ps)) }
{}
