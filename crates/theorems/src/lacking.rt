// Statements about what another list holds and the own one does not. No code.
