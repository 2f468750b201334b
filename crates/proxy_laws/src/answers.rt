ghost use Rattle.proxy_laws.specs.Traced.{AnswersGoBack};

/// The law of what is answered: if a connection was answered, memory was refused for it, or it sent no request, or its look-up is not answered,
/// or its URLs were told. Each verdict then goes back to one look at the hits of its URL, on the lists that the proxy held when the connection
/// was taken, and to one answer to a find that asked for the hits that were open, or to none.
pub fn answers_go_back_to_lists()
    ensures { AnswersGoBack }
{}
