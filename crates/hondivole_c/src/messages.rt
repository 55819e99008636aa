// Outcome messages (Req 01): the three calls as exported; the caller names the edition by its number (Req 05).
ghost use Rattle.message_fit.specs.Fit.{caller_by};
ghost use Rattle.message_write.specs.Write.{WriteReplies};
ghost use Rattle.message_read.specs.Promise.{ReadPromise};
ghost use Rattle.message_rewrite.specs.Promise.{RewritePromise};

use hondivole::messages;

// Writes the outcome message of a flow.
#[unsafe(no_mangle)]
pub extern "C" fn hondivole_message_write(
    edition: u64,
    flow: &[u8],
    outcomes: &[u8],
    created: &[u8],
    outcome: &[u8],
    codice_ente: &[u8],
    descrizione_ente: &[u8],
    codice_istat_ente: &[u8],
    codice_fiscale_ente: &[u8],
    codice_tramite_ente: &[u8],
    codice_tramite_BT: &[u8],
    identificativo_flusso_BT: &[u8],
    message: &mut [u8],
    length: &mut u64,
) -> u64
    ensures { WriteReplies edition flow.now outcomes.now (caller_by created.now outcome.now
        codice_ente.now descrizione_ente.now codice_istat_ente.now codice_fiscale_ente.now
        codice_tramite_ente.now codice_tramite_BT.now identificativo_flusso_BT.now)
        message.old (record { code = result; length = length.new }) message.new }
{
    messages::hondivole_message_write(
        edition,
        flow,
        outcomes,
        created,
        outcome,
        codice_ente,
        descrizione_ente,
        codice_istat_ente,
        codice_fiscale_ente,
        codice_tramite_ente,
        codice_tramite_BT,
        identificativo_flusso_BT,
        message,
        length,
    )
}

// Reads an outcome message into values.
#[unsafe(no_mangle)]
pub extern "C" fn hondivole_message_read(
    edition: u64,
    message: &[u8],
    values: &mut [u8],
    entries: &mut u64,
    place: &mut u64,
    cause: &mut u64,
) -> u64
    ensures { ReadPromise edition message.now values.old
        (record { code = result; place = place.new; cause = cause.new; entries = entries.new }) values.new }
{
    messages::hondivole_message_read(edition, message, values, entries, place, cause)
}

// Reads an outcome message and writes it again.
#[unsafe(no_mangle)]
pub extern "C" fn hondivole_message_rewrite(
    edition: u64,
    message: &[u8],
    again: &mut [u8],
    length: &mut u64,
) -> u64
    ensures { RewritePromise edition message.now again.old (record { code = result; length = length.new })
        again.new }
{
    messages::hondivole_message_rewrite(edition, message, again, length)
}
