// The table of documents.
ghost use Rattle.script_reading.specs.Scenarios as spec;

use crate::format::{Format, document_keys, top_url};
use crate::headers::DocumentHeaders;
use crate::urls::DocumentUrl;
use script_scenarios::Document;
use script_steps::DocumentScript;
use std::alloc::Global;
use value_bytes::Items;
use value_json::{Form, Refused, Tree, only_keys, optional, required};
use value_requests::ReferrerPolicy;

/// A document: its URL and that of the page at the top, what its headers say, and its script.
#[derive(Drop)]
pub(crate) struct DocumentTable {
    pub(crate) format: Format,
}

impl Form for DocumentTable {
    type Out = Document;

    ghost reads = { λ table. spec.document_of table.format };

    fn read(&self, alloc: Global, tree: &Tree<'_, '_>) -> Result<Document, Refused> {
        only_keys(alloc, tree, document_keys(self.format))?;
        let url = required(alloc, tree, "url", &DocumentUrl)?;
        let top = top_url(alloc, self.format, &url, tree)?;
        let unsaid = (
            ReferrerPolicy::StrictOriginWhenCrossOrigin,
            Items::new(alloc),
        );
        let said = optional(alloc, tree, "headers", unsaid, &DocumentHeaders)?;
        let (policy, policies) = said;
        let script = required(alloc, tree, "script", &DocumentScript)?;
        Ok(Document {
            url,
            top,
            policy,
            policies,
            script,
        })
    }
}
