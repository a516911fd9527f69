// A law of the URLs of generated documents.
ghost use Rattle.std.specs.Prelude.{◌≡◌, ◌<◌, ℕ, Some, None};
ghost use Rattle.value_requests.specs.Urls.{url_of_text};
ghost use Rattle.script_generated.specs.Generated.{address, address_text};

/// The URL of each document that is generated is the one that the text `http://dI.test/` gives by
/// itself (URL Standard, section 4.4).
pub fn law_addresses()
    ensures { (i : ℕ) → i < 64 → url_of_text None (Some (address_text i)) ≡ Some (address i) }
{}
