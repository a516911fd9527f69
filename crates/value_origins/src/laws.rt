// The law of serialised origins: this crate and `url` write them alike.
ghost use Rattle.value_origins.specs.Laws.{IsSerializedAsUrl};

use url::Url;

/// A law: the serialization of the origin of an http or https URL is the one that `url` gives (URL,
/// section 4.7, "origin"; HTML, section 7.1.1, "serialization of an origin"). The call does nothing.
pub fn law_serialized_as_url(url: &Url)
    ensures { IsSerializedAsUrl url.now }
{
    let _ = url.scheme();
}
